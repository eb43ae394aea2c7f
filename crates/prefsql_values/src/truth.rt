ghost use Rattle.std.specs.Prelude.{◌≡◌};
ghost use Rattle.prefsql_values.specs.Truth.{both_true, either_true, negated, negated_if};
ghost use Rattle.prefsql_values.specs.Value.{truth_of};

/// The truth of a condition in SQL's three-valued logic (ISO/IEC 9075:1992).
#[derive(Clone, Copy, Debug, PartialEq, Eq)]
pub enum Truth {
    False,
    Unknown,
    True,
}

/// AND: False where one side is False, else Unknown where one is Unknown, else True.
pub fn and(a: Truth, b: Truth) -> Truth
    ensures { result ≡ both_true a b }
{
    match (a, b) {
        (Truth::False, _) | (_, Truth::False) => Truth::False,
        (Truth::True, Truth::True) => Truth::True,
        _ => Truth::Unknown,
    }
}

/// OR: True where one side is True, else Unknown where one is Unknown, else False.
pub fn or(a: Truth, b: Truth) -> Truth
    ensures { result ≡ either_true a b }
{
    match (a, b) {
        (Truth::True, _) | (_, Truth::True) => Truth::True,
        (Truth::False, Truth::False) => Truth::False,
        _ => Truth::Unknown,
    }
}

/// NOT: changes True and False, keeps Unknown.
pub fn not(a: Truth) -> Truth
    ensures { result ≡ negated a }
{
    match a {
        Truth::False => Truth::True,
        Truth::Unknown => Truth::Unknown,
        Truth::True => Truth::False,
    }
}

/// NOT where the flag says so.
pub fn negated_if(negate: bool, truth: Truth) -> Truth
    ensures { result ≡ negated_if negate truth }
{
    if negate { not(truth) } else { truth }
}

/// True where the test holds, else False.
pub fn truth_of(test: bool) -> Truth
    ensures { result ≡ truth_of test }
{
    if test { Truth::True } else { Truth::False }
}
