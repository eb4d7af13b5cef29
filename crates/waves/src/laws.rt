//! Laws of the text of waves. Each is a function that does nothing.
ghost use Rattle.std.specs.Prelude.{◌≡◌, ℕ, ◌<◌, ◌≤◌, Bool, List, length, map, codes};
ghost use Rattle.std.specs.List.{AllByRecursion};
ghost use Rattle.chw_clock.specs.Histories.{HaveWidths};
ghost use Rattle.chw_clock.specs.declared.event.Event.{Event};
ghost use Rattle.chw_clock.specs.declared.event.Ports.{Ports};
ghost use Rattle.waves.specs.Examples.{a_text, an_example};
ghost use Rattle.waves.specs.Vcd.{code_of, values_at, variables};

/// No two variables have one code, and a code has visible characters, one at least.
pub fn codes_are_distinct()
    ensures distinct { (j k : ℕ) → code_of j ≡ code_of k → j ≡ k }
    ensures some { (k : ℕ) → 0 < length (code_of k) }
    ensures visible { (k : ℕ) → AllByRecursion (λ b. (33 ≤ b) × (b ≤ 126)) (code_of k) }
{}

/// Each variable has a value of its width at both times of an event of its ports.
pub fn values_have_their_widths()
    ensures { (ports : Ports) (risen : Bool) (event : Event) (outputs : List (List Bool))
        → HaveWidths ports.inputs event.inputs → HaveWidths ports.outputs outputs
        → map length (values_at ports risen event outputs)
        ≡ map (λ it. it.width) (variables ports) }
{}

/// The text of two events of a circuit with a reset, and two codes, written out.
pub fn examples()
    ensures text { an_example ≡ a_text }
    ensures last_of_one { code_of 93 ≡ codes "~" }
    ensures first_of_two { code_of 94 ≡ codes "\"!" }
{}
