//! The zeros in front of a path, which lead from a spine to its functions.
ghost use Rattle.chw_typing.specs.Steps.{AreZeros};

// How many zeros stand in front, or `most` where they are more.
pub(crate) fn zeros_in_front(path: &[u32], most: usize) -> usize
    ensures { AreZeros path.now most result }
{
    for (n, i) in path.iter().enumerate() {
        if n == most {
            return n;
        }
        if *i != 0 {
            return n;
        }
    }
    path.len()
}
