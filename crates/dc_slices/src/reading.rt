//! What is read from tokens.

ghost use Rattle.std.specs.Prelude.{◌≡◌, IfOk};
ghost use Rattle.dc_slices.specs.Judging.{both_of, added};

use dc_text::{DcList, NoMemory};

/// Nothing that the grammar gives, something in which an expression is too deep, or a value.
#[derive(Drop)]
pub enum Reading<T> {
    Nothing,
    Deep,
    Whole(T),
}

/// Two readings as one. Where one of them found nothing, it counts for nothing how deep the other is.
pub fn both<A: Drop, B: Drop>(one: Reading<A>, other: Reading<B>) -> Reading<(A, B)>
    ensures { result ≡ both_of one other }
{
    match one {
        Reading::Nothing => Reading::Nothing,
        Reading::Deep => match other {
            Reading::Nothing => Reading::Nothing,
            _ => Reading::Deep,
        },
        Reading::Whole(one) => match other {
            Reading::Nothing => Reading::Nothing,
            Reading::Deep => Reading::Deep,
            Reading::Whole(other) => Reading::Whole((one, other)),
        },
    }
}

/// A list with one more item.
pub fn add<T: Drop>(
    so_far: Reading<DcList<T>>,
    part: Reading<T>,
) -> Result<Reading<DcList<T>>, NoMemory>
    ensures { IfOk result (λ more. more ≡ added so_far part) }
{
    match both(so_far, part) {
        Reading::Nothing => Ok(Reading::Nothing),
        Reading::Deep => Ok(Reading::Deep),
        Reading::Whole((list, item)) => {
            let mut list = list;
            list.push(item)?;
            Ok(Reading::Whole(list))
        }
    }
}
