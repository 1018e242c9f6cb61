// Exec byte and pred word, which every instruction has: their tests, and the bits of the predicate that is named.

#![tactic(auto)]

ghost use Rattle.std.specs.Prelude.{◌≡◌};
ghost use Rattle.refusal.specs.Numbers.{number_given, detail_given};
ghost use Rattle.refusal.specs.declared.Detail.TheVariants as detail;
ghost use Rattle.controls.specs.Control.{lanes_end, predicate_refusal, control_refusal, bits_named};

use field_groups::Control;
use predicate_table::PredicateRecord;
use refusal::Refusal;

// Offset plus ExecSize.
fn lanes_end(exec: u8) -> u16
    ensures { result ≡ lanes_end exec }
{
    let lanes = exec_byte::split(exec);
    u16::from(lanes.offset) + u16::from(lanes.size)
}

// 5, then 17, of the predicate that a pred word names.
#[tactic(auto, unfolding(crate::specs::Control::predicate_refusal))]
fn predicate_refusal(predicate: PredicateRecord, exec: u8) -> Result<(), Refusal>
    ensures number { number_given result ≡ predicate_refusal predicate exec }
    ensures detail { detail_given result ≡ detail.None }
{
    if !predicate.present {
        return Err(Refusal::Missing);
    }
    if u16::from(predicate.count) < lanes_end(exec) {
        return Err(Refusal::Predicate);
    }
    Ok(())
}

// 8, then those of the predicate, if one is named.
#[tactic(auto, unfolding(crate::specs::Control::control_refusal))]
pub fn control_refusal(predicate: PredicateRecord, control: Control) -> Result<(), Refusal>
    ensures number { number_given result ≡ control_refusal predicate control }
    ensures detail { detail_given result ≡ detail.None }
{
    if 32 < lanes_end(control.exec) {
        return Err(Refusal::Lanes);
    }
    if predicate_field::has_predicate(control.pred) {
        return predicate_refusal(predicate, control.exec);
    }
    Ok(())
}

// The bits of the predicate that the pred word names.
#[tactic(auto, unfolding(crate::specs::Control::bits_named))]
pub fn bits_named(predicate: PredicateRecord, pred: u16) -> u32
    ensures { result ≡ bits_named predicate pred }
{
    if predicate_field::has_predicate(pred) {
        predicate.bits
    } else {
        0
    }
}
