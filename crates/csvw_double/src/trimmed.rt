//! Digits without the zeros around them.
ghost use Rattle.std.specs.Prelude.{◌≡◌};
ghost use Rattle.csvw_double.specs.Digits.{after_zeros, before_zeros};

/// Returns digits without the zeros at their start.
pub(crate) fn after_zeros(digits: &[u8]) -> &[u8]
    ensures { result.now ≡ after_zeros digits.now }
{
    let mut rest = digits;
    while let [b'0', behind @ ..] = rest {
        rest = behind;
    }
    rest
}

/// Returns digits without the zeros at their end.
#[tactic(auto, using(crate::proofs::TrimLemmas::zero_last, crate::proofs::TrimLemmas::other_last))]
pub(crate) fn before_zeros(digits: &[u8]) -> &[u8]
    ensures { result.now ≡ before_zeros digits.now }
{
    let mut rest = digits;
    loop {
        match rest.split_last() {
            Some((last, front)) if *last == b'0' => rest = front,
            _ => return rest,
        }
    }
}
