// What making fixes, as definitions speak of it.

/// What making a challenger over a sponge fixes.
pub struct Parameters<P> {
    pub width: usize,
    pub rate: usize,
    pub permutation: P,
}
