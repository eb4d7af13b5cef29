//! The laws of the primitives' values. Each is a function that does nothing, and says its law of all words.
ghost use Rattle.std.specs.Prelude.{◌≡◌, ℕ, ◌+◌, ◌-◌, ◌/◌, ◌^◌, ◌<◌, ◌≤◌, Bool, List, [], length, map, slice_index, slice_index_or, Some, ◌+ℤ◌, ◌*ℤ◌};
ghost use Rattle.chw_bits.specs.Bits.{number_of, bits_of, cut_of};
ghost use Rattle.chw_prims.specs.declared.prim.Primitive.{Primitive};
ghost use Rattle.chw_types.specs.declared.kind.Scalar.{Scalar};
ghost use Rattle.chw_types.specs.declared.kind.Scalar.TheVariants.{U, S};
ghost use Rattle.prim_bits.specs.Results.{sum_of, difference_of, product_of};
ghost use Rattle.prim_bits.specs.Values.{value_of, result_of};
ghost use Rattle.prim_bits.specs.Widths.{Takes, width_of};
ghost use Rattle.chw_bits.specs.Integers.{word_of};
ghost use Rattle.prim_bits.specs.Words.{integer_of};

/// A primitive has a value just where it takes its words, and then its result is the one value.
pub fn values_where_taken()
    ensures given { (p : Primitive) (nats : List ℕ) (args : List (List Bool)) → Takes p nats (map length args) →
        value_of p nats args ≡ Some (result_of p (slice_index nats 0) (slice_index nats 1) (slice_index_or args 0 []) (slice_index_or args 1 [])) }
    ensures taken { (p : Primitive) (nats : List ℕ) (args : List (List Bool)) (r : List Bool) → value_of p nats args ≡ Some r →
        Takes p nats (map length args)
        × (r ≡ result_of p (slice_index nats 0) (slice_index nats 1) (slice_index_or args 0 []) (slice_index_or args 1 [])) }
{}

/// A value has the width of the primitive's result.
pub fn width_of_a_value()
    ensures { (p : Primitive) (nats : List ℕ) (args : List (List Bool)) (r : List Bool) →
        value_of p nats args ≡ Some r → length r ≡ width_of p nats }
{}

/// Up to the width of its words, signed arithmetic gives the bits of unsigned arithmetic.
pub fn signed_arithmetic()
    ensures sum { (width : ℕ) (a b : List Bool) → width ≤ length a → width ≤ length b →
        sum_of S width a b ≡ sum_of U width a b }
    ensures difference { (width : ℕ) (a b : List Bool) → width ≤ length a → width ≤ length b →
        difference_of S width a b ≡ difference_of U width a b }
    ensures product { (width : ℕ) (a b : List Bool) → width ≤ length a → width ≤ length b →
        product_of S width a b ≡ product_of U width a b }
{}

/// One more bit than two words of one width have holds their sum exactly, their widths together hold their product, and a wider word
/// holds what a word means.
pub fn exact_results()
    ensures sum { (x : Scalar) (a b : List Bool) → length a ≡ length b →
        integer_of x (sum_of x (length a + 1) a b) ≡ integer_of x a +ℤ integer_of x b }
    ensures product { (x : Scalar) (a b : List Bool) →
        integer_of x (product_of x (length a + length b) a b) ≡ integer_of x a *ℤ integer_of x b }
    ensures extension { (x : Scalar) (a : List Bool) (more : ℕ) →
        integer_of x (word_of (length a + more) (integer_of x a)) ≡ integer_of x a }
{}

/// The lowest bits of a number without its lowest ones are those that stand above these in the word.
pub fn bits_in_the_middle()
    ensures { (low count : ℕ) (bits : List Bool) → 0 < count → low + count ≤ length bits →
        bits_of count (number_of bits / 2 ^ low) ≡ cut_of (low + count - 1) low bits }
{}
