#![tactic(auto)]

ghost use Rattle.std.specs.Prelude.{◌≡◌, ℕ, ◌+◌, ◌*◌, ◌^◌, ◌<◌};
ghost use Rattle.trust.specs.Refusals.{refusal_number};
ghost use Rattle.chost.specs.Packed.{packed_masks, packed_refusal, packed, Packs};

use sets::NodeSet;
use text::reading::read_statement;
use trust::refusal::Refusal;
use trust::rule::TrustRule;
use trust::sorting::{Sorted, sort};
use trust::statement::Statement;

// Wise in bits 0 to 15, guild in 16 to 31.
fn pack_masks(sorted: Sorted) -> u64
    ensures { result ≡ packed_masks sorted.wise.0 sorted.guild.0 }
{
    u64::from(sorted.wise.0) + u64::from(sorted.guild.0) * 65536
}

// The refusal in bits 32 to 39.
fn pack_refusal(refusal: Refusal) -> u64
    ensures { result ≡ packed_refusal refusal }
{
    u64::from(u8::from(refusal)) * 4294967296
}

// The answer for a rule: 8 comes before 9.
// Not inlined: within the reader its loops came to lie across a line of the cache, and a full statement took half as long again.
#[inline(never)]
fn pack<R: TrustRule>(rule: &R, faulty: NodeSet) -> u64
    ensures { result ≡ packed (R.meaning rule.now) faulty.0 }
{
    match sort(rule, faulty) {
        Err(refusal) => pack_refusal(refusal),
        Ok(sorted) => {
            if !rule.sound() {
                return pack_refusal(Refusal::Unsound);
            }
            pack_masks(sorted)
        }
    }
}

// The wise nodes and the maximal guild of a statement text for a faulty set, or the refusal, in one number.
#[unsafe(no_mangle)]
pub extern "C" fn zurbeshik_guild(text: &[u8], faulty: u16) -> u64
    ensures { Packs text.now faulty result }
{
    let mut statement = Statement::fresh();
    match read_statement(text, &mut statement) {
        Ok(()) => pack(&statement, NodeSet(faulty)),
        Err(fault) => pack_refusal(fault.refusal),
    }
}
