/// What a line of a model's text was: one more of it, or its end. `None` for a text that is too long to be kept.
#[derive(Drop)]
pub enum Found {
    More(Option<Vec<u8>>),
    Text(Option<Vec<u8>>),
    NoBegin,
}

/// The model's text, or that the input has none. `None` for a text that is too long to be kept.
#[derive(Drop)]
pub enum Head {
    Text(Option<Vec<u8>>),
    NoBegin,
}
