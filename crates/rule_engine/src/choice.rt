// The choice among the candidates.
ghost use Rattle.std.specs.Prelude.{ℕ, ◌≡◌, ◌<◌, None};
ghost use Rattle.rule_engine.specs.Control as spec;

use rule_api::Firing;
use rule_plan::{Order, Plan};

// The first of those whose rule ranks first.
pub fn earliest(list: &[Firing]) -> Option<Firing>
    ensures { result ≡ spec.earliest list.now }
{
    let mut found: Option<Firing> = None;
    for f in list {
        found = Some(match found {
            Some(e) if e.rule.rank() <= f.rule.rank() => e,
            _ => *f,
        });
    }
    found
}

// The draw of this number from a seed below the modulus.
fn draw_from(seed: u64, n: u64) -> u64
    requires { seed < 2147483648 }
    ensures { result ≡ spec.draw seed n }
{
    let mut x = seed;
    for k in 0..n {
        x = (x * 1103515245 + 12345) % 2147483648;
    }
    (x * 1103515245 + 12345) % 2147483648 / 65536
}

/// The draw of this number, from 0, of a seed: a number below 32,768 (the portable `rand` of the C
/// standard, with 31 bits of state).
#[tactic(auto, using(crate::proofs::Drawn::draw_reduced))]
pub fn draw(seed: u64, n: u64) -> u64
    ensures { result ≡ spec.draw seed n }
{
    draw_from(seed % 2147483648, n)
}

/// Which of the candidates fires, `count` having fired before. It takes no memory.
#[tactic(auto, unfolding(crate::specs::Control::next))]
pub fn next(plan: &Plan, list: &[Firing], count: u64) -> Option<Firing>
    ensures { result ≡ spec.next plan.now list.now count }
{
    match plan.order {
        Order::Sequence => list.first().copied(),
        Order::Priority => earliest(list),
        Order::Scatter => {
            if list.is_empty() {
                return None;
            }
            let k = draw(plan.seed, count) % (list.len() as u64);
            Some(list[k as usize])
        }
    }
}
