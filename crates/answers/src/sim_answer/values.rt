//! Events of which the inputs encode values.
ghost use Rattle.std.specs.Prelude.{◌↔◌, ◌<◌, length, map, IsTrue, IfOk, IfSome, IfNone};
ghost use Rattle.std.specs.List.{AllByRecursion};
ghost use Rattle.chw_types.specs.References.{HasNoCycle};
ghost use Rattle.chw_layout.specs.Encodes.{HaveConstructors};
ghost use Rattle.data_forms.specs.Forms.{AreForms, IsEncoding, type_at};
ghost use Rattle.answers.specs.SimAnswer.Simulation.{AllPairs, HasValues};
ghost use Rattle.answers.specs.SimAnswer.Types.{AllAreSized, IsFirstStranger, IsMeasured, IsSized};

use chw_base::NoMemory;
use chw_clock::{Bits, Event};
use chw_types::{Data, Ty};
use data_forms::{Form, put_forms, takes};
use std::alloc::Global;

/// Whether the bits encode values of the types at these places of a table, one of each.
fn are_encodings(
    alloc: Global,
    inputs: &[Bits],
    forms: &[Form],
    places: &[usize],
    datas: &[Data],
) -> Result<bool, NoMemory>
    requires order { HasNoCycle datas.now }
    requires forms { AreForms datas.now forms.now }
    requires places { AllByRecursion (λ at. at < length forms.now) places.now }
    requires widths { AllPairs (IsSized datas.now) (map (type_at forms.now) places.now) inputs.now }
    ensures { IfOk result (λ yes. IsTrue yes ↔ AllPairs (IsEncoding datas.now) (map (type_at forms.now) places.now) inputs.now) }
{
    for (place, bits) in inputs.iter().enumerate() {
        if !takes(alloc, forms, places[place], bits.as_slice(), datas)? {
            return Ok(false);
        }
    }
    Ok(true)
}

/// The number of the first event of which the inputs don't encode values of the types at these places of a table.
fn first_untaken(
    alloc: Global,
    events: &[Event],
    forms: &[Form],
    places: &[usize],
    datas: &[Data],
) -> Result<Option<usize>, NoMemory>
    requires order { HasNoCycle datas.now }
    requires forms { AreForms datas.now forms.now }
    requires places { AllByRecursion (λ at. at < length forms.now) places.now }
    requires widths { AllAreSized datas.now (map (type_at forms.now) places.now) events.now }
    ensures some { IfOk result (λ r. IfSome r (IsFirstStranger datas.now (map (type_at forms.now) places.now) events.now)) }
    ensures none { IfOk result (λ r. IfNone r (AllByRecursion (HasValues datas.now (map (type_at forms.now) places.now)) events.now)) }
{
    for (place, event) in events.iter().enumerate() {
        if !are_encodings(alloc, event.inputs.as_slice(), forms, places, datas)? {
            return Ok(Some(place));
        }
    }
    Ok(None)
}

/// The number of the first event of which the inputs don't encode values of the types.
///
/// What bits do is worked out once for each type. Of an event memory is taken only for types of very many parts.
pub(crate) fn first_stranger(
    alloc: Global,
    events: &[Event],
    types: &[Ty],
    datas: &[Data],
) -> Result<Option<usize>, NoMemory>
    requires order { HasNoCycle datas.now }
    requires inhabited { HaveConstructors datas.now }
    requires measured { AllByRecursion (IsMeasured datas.now) types.now }
    requires widths { AllAreSized datas.now types.now events.now }
    ensures some { IfOk result (λ r. IfSome r (IsFirstStranger datas.now types.now events.now)) }
    ensures none { IfOk result (λ r. IfNone r (AllByRecursion (HasValues datas.now types.now) events.now)) }
{
    let mut forms = Vec::new(alloc);
    let places = put_forms(alloc, types, datas, &mut forms)?;
    let found = first_untaken(alloc, events, &forms, &places, datas);
    drop(places);
    drop(forms);
    found
}
