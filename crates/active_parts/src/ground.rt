//! What a walk over active places goes over.
use chw_terms::Scene;
use term_types::Signature;

/// A scene, and the signature of its program.
#[derive(Clone, Copy)]
pub struct Ground<'g> {
    pub scene: &'g Scene<'g>,
    pub signature: &'g Signature<'g>,
}
