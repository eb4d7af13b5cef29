//! What the place of a name says.
ghost use Rattle.std.specs.Prelude.{◌≡◌, ◌<◌, ℕ, List, None, Some, slice_get};
ghost use Rattle.name_tables.specs.Names.{place_of};

/// The place of a name among names is the first at which it stands.
pub fn places_are_first()
    ensures { (names : List (List ℕ)) (name : List ℕ) (k : ℕ) → place_of names name ≡ Some k
        → (slice_get names k ≡ Some name) × ((j : ℕ) → j < k → slice_get names j ≡ Some name → ⊥) }
{}

/// A name without a place among names is none of them.
pub fn missing_names_stand_nowhere()
    ensures { (names : List (List ℕ)) (name : List ℕ) → place_of names name ≡ None → (j : ℕ) → slice_get names j ≡ Some name → ⊥ }
{}
