// A setting tried: what its table weighs after it, and the sum of texts.
ghost use Rattle.std.specs.Prelude.{ℕ, ◌<◌};
ghost use Rattle.plain_judge.specs.Judging.{WeightAt, WeightPut, TryIs};

use plain_look::known::kind_number;
use plain_weigh::weighing::{Before, weigh_setting};
use plain_weigh::weights::Weight;
use read_deeds::beginnings::begin;
use requests::trying::{kind_of, sum_after};
use settings::settings::Setting;
use tables::limits::HANDHELD;

// Two numbers for each kind, and the bytes of all texts.
pub const WEIGHTS: usize = 27;

const SUM: usize = 26;

// What the table of a kind weighs.
fn weight_at(weights: &[usize], k: usize) -> Weight
    ensures { WeightAt weights.now k result }
{
    if weights.len() != WEIGHTS || 13 <= k {
        return Weight {
            entries: 0,
            bytes: 0,
        };
    }
    let low = 2 * k;
    let high = low + 1;
    Weight {
        entries: weights[low],
        bytes: weights[high],
    }
}

// Keeps what the table of a kind weighs, and the sum.
fn put_weight(weights: &mut [usize], k: usize, weight: Weight, sum: usize)
    ensures { WeightPut weights.old k weight sum weights.new }
{
    if weights.len() != WEIGHTS || 13 <= k {
        return;
    }
    let low = 2 * k;
    let high = low + 1;
    weights[low] = weight.entries;
    weights[high] = weight.bytes;
    weights[SUM] = sum;
}

// A setting that was read, after the deeds before it: how many deeds of the request were read then; none where there was no room.
pub(crate) fn try_setting(
    log: &[u8],
    m: &[u8],
    before: Before,
    setting: Setting,
    weights: &mut [usize],
) -> Option<usize>
    ensures { TryIs log.now m.now before setting weights.old weights.new result }
{
    if weights.len() != WEIGHTS {
        return None;
    }
    let k = kind_number(kind_of(setting));
    let was = weight_at(weights, k);
    let (weight, passed) = weigh_setting(log, m, before, begin(m, setting), was)?;
    let texts = HANDHELD.texts;
    let Some(sum) = sum_after(texts, weights[SUM], was.bytes, weight.bytes) else {
        return None;
    };
    put_weight(weights, k, weight, sum);
    Some(passed)
}
