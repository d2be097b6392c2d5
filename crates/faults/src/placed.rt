// A fault with the place at which it was met.
ghost use Rattle.std.specs.Prelude.{◌≡◌, Ok, Err, MatchResult};

#[derive(Clone, Copy, Debug, PartialEq, Eq)]
pub struct Placed<F> {
    pub fault: F,
    pub place: usize,
}

// A failure with its place put beside it, for the layer above.
pub fn with_place<T, F>(r: Result<T, F>, place: usize) -> Result<T, Placed<F>>
    ensures { MatchResult r (λ x. result ≡ Ok x) (λ f. result ≡ Err (record { fault = f; place = place })) }
{
    r.map_err(|fault| Placed { fault, place })
}
