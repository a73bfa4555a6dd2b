// The number of items of a program.

ghost use Rattle.std.specs.Prelude.{◌≡◌, ◌-◌, ◌^◌, min};
ghost use Rattle.outline.specs.Counts.{list_count, part_count};

use base::tree::Part;

/// How many items a part has; a number above `u64::MAX` is kept as that.
#[tactic(auto, using(crate::proofs::Counting::count_Block))]
#[cycle(count)]
pub fn count(part: &Part) -> u64
    ensures { result ≡ min (part_count part.now) (2 ^ 64 - 1) }
{
    match part {
        Part::Host(_) | Part::Target(_, _) | Part::Alone(_, _) => 1,
        Part::Block(all) => count_all(all),
        Part::Loop(bounds, body) => bounds.turns().saturating_mul(count_all(body)),
        Part::Data(_, body) => count_all(body).saturating_add(2),
    }
}

/// How many items some parts have.
#[cycle(count)]
pub fn count_all(parts: &[Part]) -> u64
    ensures { result ≡ min (list_count parts.now) (2 ^ 64 - 1) }
{
    let mut total = 0u64;
    'parts: for part in parts {
        total = total.saturating_add(count(part));
    }
    total
}
