//! Kinds of single types, and of the fields of data types.
ghost use Rattle.std.specs.Prelude.{reverse, MatchOption};
ghost use Rattle.std.specs.Bool.{Decides};
ghost use Rattle.chw_typing.specs.Programs.{setting_of};
ghost use Rattle.chw_typing.specs.Scopes.{HasKind, IsTermType};
ghost use Rattle.chw_check.specs.Fits.{DataFits, HasSomeKind};
ghost use Rattle.chw_check.specs.FitParts.{FieldsFit};

use chw_terms::Program;
use chw_types::{ConDecl, Data, Kind, Ty, kind_of};

// The kind of a type, where it has one and its variables have these kinds, the outermost first.
fn kind_in(program: &Program, kinds: &[Kind], ty: &Ty) -> Option<Kind>
    ensures { MatchOption result (HasSomeKind (setting_of program.now) (reverse kinds.now) ty.now → ⊥)
        (λ kind. HasKind (setting_of program.now) (reverse kinds.now) ty.now kind) }
{
    let datas = program.datas.as_slice();
    let domains = program.domains.as_slice();
    kind_of(ty, kinds, datas, domains).ok()
}

/// Whether a type has a kind, where its variables have these kinds, the outermost first.
pub(crate) fn has_kind(program: &Program, kinds: &[Kind], ty: &Ty) -> bool
    ensures { Decides result (HasSomeKind (setting_of program.now) (reverse kinds.now) ty.now) }
{
    kind_in(program, kinds, ty).is_some()
}

/// Whether a type is one that terms have.
pub(crate) fn is_term_type(program: &Program, kinds: &[Kind], ty: &Ty) -> bool
    ensures { Decides result (IsTermType (setting_of program.now) (reverse kinds.now) ty.now) }
{
    match kind_in(program, kinds, ty) {
        Some(kind) => kind.is_of_terms(),
        None => false,
    }
}

// Whether each field of a constructor has a type that terms have.
fn fields_fit(program: &Program, params: &[Kind], con: &ConDecl) -> bool
    ensures { Decides result (FieldsFit (setting_of program.now) params.now con.now) }
{
    let fields = con.fields.as_slice();
    for field in fields {
        if !is_term_type(program, params, field) {
            return false;
        }
    }
    true
}

/// Whether each field of a data type has a type that terms have.
pub(crate) fn data_fits(program: &Program, it: &Data) -> bool
    ensures { Decides result (DataFits (setting_of program.now) it.now) }
{
    let params = it.params.as_slice();
    let cons = it.cons.as_slice();
    for con in cons {
        if !fields_fit(program, params, con) {
            return false;
        }
    }
    true
}
