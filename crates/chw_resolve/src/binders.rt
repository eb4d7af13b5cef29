//! Binders that open together, of which the last is the innermost.
ghost use Rattle.std.specs.Prelude.{◌≡◌, flat_map, OnOk};
ghost use Rattle.chw_names.specs.Twices.{binding_name, parameter_name, pattern_words};
ghost use Rattle.chw_names.specs.Unknowns.{within};

use chw_base::NoMemory;
use chw_grammar::{Binding, Parameter, Pattern, Word};
use name_tables::Scope;

/// Opens binders of these names.
fn bind_words<'t>(scope: &mut Scope<'t>, words: &'t [Word]) -> Result<(), NoMemory>
    ensures { OnOk result (scope.new ≡ within words.now scope.old) }
{
    for word in words {
        scope.bind(word.bytes.as_slice())?;
    }
    Ok(())
}

/// Opens the binders of a letrec.
pub fn bind_group<'t>(scope: &mut Scope<'t>, bindings: &'t [Binding]) -> Result<(), NoMemory>
    ensures { OnOk result (scope.new ≡ within (flat_map binding_name bindings.now) scope.old) }
{
    for binding in bindings {
        scope.bind(binding.name.bytes.as_slice())?;
    }
    Ok(())
}

/// Opens the binders of a pattern.
pub fn bind_pattern<'t>(scope: &mut Scope<'t>, pattern: &'t Pattern) -> Result<(), NoMemory>
    ensures { OnOk result (scope.new ≡ within (pattern_words pattern.now) scope.old) }
{
    match pattern {
        Pattern::Constructor(_, words) => bind_words(scope, words.as_slice()),
        Pattern::Literal(_) | Pattern::Default => Ok(()),
    }
}

/// Opens the parameters of a data type.
pub fn bind_parameters<'t>(
    scope: &mut Scope<'t>,
    parameters: &'t [Parameter],
) -> Result<(), NoMemory>
    ensures { OnOk result (scope.new ≡ within (flat_map parameter_name parameters.now) scope.old) }
{
    for parameter in parameters {
        scope.bind(parameter.name.bytes.as_slice())?;
    }
    Ok(())
}
