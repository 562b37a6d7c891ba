//! Puts outcomes in the order of the jobs.

ghost use Rattle.std.specs.Prelude.{◌≡◌, ◌≤◌, ◌<◌, ◌^◌, length, map, slice_set, vec_len};
ghost use Rattle.std.specs.List.{concat};
ghost use Rattle.hash_workers.specs.Claims.{HandsOutEach};
ghost use Rattle.hash_workers.specs.parts.Taking.{NumbersRise, NumbersRiseForEach};
ghost use Rattle.hash_workers.specs.parts.Scattering.{AreBelow, AreKept, ArePlaced, ArePairs, AreScattered, items_of};

use measure_book::Outcome;

/// Puts each outcome at the place of its job in `outcomes`, and its worker at that place in `by`.
pub(crate) fn scatter(
    outcomes: &mut Vec<Outcome>,
    by: &mut Vec<u32>,
    takings: &[Vec<u32>],
    mut groups: Vec<Vec<Outcome>>,
)
    requires each { HandsOutEach (vec_len outcomes.old) (concat (map items_of takings.now)) }
    requires rise { NumbersRiseForEach (map items_of takings.now) }
    requires pairs { ArePairs (map items_of takings.now) (map items_of groups.items) }
    requires sizes { vec_len by.old ≡ vec_len outcomes.old }
    requires few { vec_len groups < 2 ^ 32 }
    ensures scattered { AreScattered (map items_of takings.now) (map items_of groups.items) 0 outcomes.new.items by.new.items }
    ensures sizes { (vec_len outcomes.new ≡ vec_len outcomes.old) × (vec_len by.new ≡ vec_len by.old) }
{
    while let Some(group) = groups.pop() {
        let worker = groups.len();
        place(outcomes, by, worker as u32, &takings[worker], group);
    }
}

// Puts the outcomes of one worker at the places of its jobs.
fn place(
    outcomes: &mut Vec<Outcome>,
    by: &mut Vec<u32>,
    worker: u32,
    taken: &[u32],
    mut group: Vec<Outcome>,
)
    requires below { AreBelow (vec_len outcomes.old) taken.now }
    requires rise { NumbersRise taken.now }
    requires pairs { vec_len group ≡ length taken.now }
    requires sizes { vec_len by.old ≡ vec_len outcomes.old }
    ensures placed { ArePlaced taken.now group.items worker 0 outcomes.new.items by.new.items }
    ensures kept { AreKept taken.now 0 outcomes.old.items outcomes.new.items by.old.items by.new.items }
    ensures sizes { (vec_len outcomes.new ≡ vec_len outcomes.old) × (vec_len by.new ≡ vec_len by.old) }
{
    while let Some(outcome) = group.pop() {
        let job = taken[group.len()] as usize;
        put(outcomes, by, job, outcome, worker);
    }
}

// Puts one outcome at the place of its job.
fn put(outcomes: &mut Vec<Outcome>, by: &mut Vec<u32>, job: usize, outcome: Outcome, worker: u32)
    requires job { job < vec_len outcomes.old }
    requires by { job < vec_len by.old }
    ensures outcomes { outcomes.new.items ≡ slice_set outcomes.old.items job outcome }
    ensures by { by.new.items ≡ slice_set by.old.items job worker }
    ensures sizes { (vec_len outcomes.new ≡ vec_len outcomes.old) × (vec_len by.new ≡ vec_len by.old) }
{
    outcomes[job] = outcome;
    by[job] = worker;
}
