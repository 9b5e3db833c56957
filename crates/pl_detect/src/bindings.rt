//! The expression that is bound to a parameter.
ghost use Rattle.std.specs.Prelude.{◌≡◌, ℕ, All, IfSome};
ghost use Rattle.std.specs.Option.{option_copied};
ghost use Rattle.pl_model.specs.Values.{NamesBelow};
ghost use Rattle.pl_plan.specs.Values.{BindsBelow, binding_of};

use pl_model::Expr;

/// The expression that is bound to the parameter of this number.
pub(crate) fn binding_of(bindings: &[(u8, Expr)], number: usize) -> Option<&Expr>
    ensures value { option_copied result ≡ binding_of number bindings.now }
    ensures named { (count : ℕ) → All (BindsBelow count) bindings.now → IfSome result (λ e. NamesBelow count e.now) }
{
    for (bound, expr) in bindings {
        if *bound as usize == number {
            return Some(expr);
        }
    }
    None
}
