//! What a machine is handed of a message.
ghost use Rattle.std.specs.Prelude.{◌≡◌, ◌<◌, IfSome, All};
ghost use Rattle.std.specs.Option.{option_copied};
ghost use Rattle.pl_input.specs.Waits.{line_in};

use pl_io::Line;

/// The bytes of a line.
fn bytes_of(line: &Line) -> &[u8]
    ensures same { result.now ≡ line.now.bytes }
    ensures bytes { All (λ byte. byte < 256) result.now }
{
    let bytes = line.bytes();
    bytes
}

/// The bytes of a message, or nothing at the end of the input.
pub fn line_in(message: &Option<Line>) -> Option<&[u8]>
    ensures same { option_copied result ≡ line_in message.now }
    ensures bytes { IfSome (option_copied result) (λ bytes. All (λ byte. byte < 256) bytes) }
{
    match message {
        None => None,
        Some(line) => Some(bytes_of(line)),
    }
}
