// Components above a limit: refusal 8.
ghost use Rattle.std.specs.Prelude.{◌≡◌};
ghost use Rattle.checks.specs.Shape.{above_limit};

// Whether a component is above the limit.
pub fn above_limit(t: &[u32], limit: u32) -> bool
    ensures { result ≡ above_limit limit t.now }
{
    t.iter().any(|x| limit < *x)
}
