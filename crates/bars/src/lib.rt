// Refusals in a row: each function that may refuse asks its tests one after the other, and the first that holds says why.
#![tactic(auto)]

ghost use Rattle.std.specs.Prelude.{◌≡◌, Ok};
ghost use Rattle.bars.specs.Bars.{barred};

// The next refusal in a row, where its test holds: behind `?` no earlier one was given.
pub fn bar<E: Copy>(test: bool, why: E) -> Result<(), E>
    ensures { result ≡ barred (Ok tt) test why }
{
    if test { Err(why) } else { Ok(()) }
}
