//! The modes of places: what parts make of them, and what is a place at which.
ghost use Rattle.std.specs.Prelude.{◌≡◌, ◌↔◌, IsTrue};
ghost use Rattle.chw_terms.specs.declared.scene.Mode.TheVariants.{V, C, K};
ghost use Rattle.chw_terms.specs.TermView.{alts_of};
ghost use Rattle.rewriting.specs.Named.{mode_of};
ghost use Rattle.rewriting.specs.Spots.{is_of_values, scrutinee_mode, head_mode};
ghost use Rattle.active_parts.specs.Parts.{gives_result, HasParts};

use chw_terms::{Alt, Mode, Pattern, Sort};
use chw_types::Kind;
use con_places::Constructors;

/// The mode of the body of a definition of this sort.
pub fn mode_of(sort: Sort) -> Mode
    ensures { result ≡ mode_of sort }
{
    match sort {
        Sort::Value => Mode::V,
        Sort::Circuit => Mode::C,
    }
}

// Whether the first alternative is for a literal, or for a constructor of a data type of values.
fn is_of_values(constructors: &Constructors, alts: &[Alt]) -> bool
    ensures { result ≡ is_of_values constructors.now (alts_of alts.now) }
{
    let Some(first) = alts.first() else {
        return false;
    };
    match &first.pattern {
        Pattern::OfLit(_, _) => true,
        Pattern::OfCon(at, _) => match constructors.at(*at) {
            Some(con) => con.it.kind == Kind::Val,
            None => false,
        },
        Pattern::Default => false,
    }
}

/// The mode of what a case is on.
pub(crate) fn scrutinee_mode(constructors: &Constructors, mode: Mode, alts: &[Alt]) -> Mode
    ensures { result ≡ scrutinee_mode constructors.now mode (alts_of alts.now) }
{
    match mode {
        Mode::C | Mode::HC => {
            if is_of_values(constructors, alts) {
                Mode::K
            } else {
                Mode::HC
            }
        }
        Mode::V | Mode::HV => Mode::HV,
        Mode::K => Mode::K,
    }
}

/// The mode of a demanded argument.
pub(crate) fn head_mode(mode: Mode) -> Mode
    ensures { result ≡ head_mode mode }
{
    match mode {
        Mode::V | Mode::HV => Mode::HV,
        Mode::C | Mode::HC => Mode::HC,
        Mode::K => Mode::K,
    }
}

/// Whether a place of this mode is in a constant.
pub(crate) fn is_constant(mode: Mode) -> bool
    ensures { IsTrue result ↔ (mode ≡ K) }
{
    match mode {
        Mode::K => true,
        Mode::V | Mode::C | Mode::HV | Mode::HC => false,
    }
}

/// Whether a value is built at a place of this mode.
pub(crate) fn builds_value(mode: Mode) -> bool
    ensures { IsTrue result ↔ (mode ≡ V) }
{
    match mode {
        Mode::V => true,
        Mode::C | Mode::HV | Mode::HC | Mode::K => false,
    }
}

/// Whether a circuit is built at a place of this mode.
pub(crate) fn builds_circuit(mode: Mode) -> bool
    ensures { IsTrue result ↔ (mode ≡ C) }
{
    match mode {
        Mode::C => true,
        Mode::V | Mode::HV | Mode::HC | Mode::K => false,
    }
}

/// Whether the body of a letrec gives what the letrec gives.
pub(crate) fn gives_result(mode: Mode) -> bool
    ensures { result ≡ gives_result mode }
{
    match mode {
        Mode::K => false,
        Mode::V | Mode::C | Mode::HV | Mode::HC => true,
    }
}

/// Whether parts of a letrec are places below one of this mode.
pub(crate) fn has_parts(mode: Mode) -> bool
    ensures { IsTrue result ↔ HasParts mode }
{
    match mode {
        Mode::V | Mode::C | Mode::K => true,
        Mode::HV | Mode::HC => false,
    }
}
