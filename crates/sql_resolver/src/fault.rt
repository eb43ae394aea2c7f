//! Faults, and parts of a query that may have one.

ghost use Rattle.std.specs.Prelude.{◌≡◌, ◌∷◌, ◌++◌, [], IfOk};
ghost use Rattle.sql_resolver.specs.Outcomes.{all_of, also, earlier, earlier_if, formed, paired};
ghost use Rattle.sql_resolver.specs.Owed.{is_before};

use prefsql_lexer::Spot;
use prefsql_values::{List, Memory};
use std::alloc::Global;
use std::marker::Model;

/// A false obligation, and the place where it stands among those of its clause.
#[derive(Debug, Drop)]
pub struct Fault {
    pub at: u32,
    pub spot: Spot,
}

impl Model for Fault {
    ghost use Rattle.sql_resolver.specs.Owed as owed;

    ghost Value = { owed.Fault };

    ghost view = { λ f. record { at = f.at; spot = f.spot } };
}

impl Fault {
    /// Whether this fault stands before the other: by place, then by code.
    fn is_before(&self, other: &Fault) -> bool
        ensures { result ≡ is_before self.now other.now }
    {
        self.at < other.at || (self.at == other.at && self.spot.code < other.spot.code)
    }
}

/// The earlier of two faults, and of two that stand alike the first.
fn earlier(first: Fault, second: Fault) -> Fault
    ensures { result ≡ earlier first second }
{
    if second.is_before(&first) {
        second
    } else {
        first
    }
}

/// Both parts, or the earlier of their faults.
pub(crate) fn paired<A: Drop, B: Drop>(
    first: Result<A, Fault>,
    second: Result<B, Fault>,
) -> Result<(A, B), Fault>
    ensures { result ≡ paired first second }
{
    match first {
        Ok(a) => match second {
            Ok(b) => Ok((a, b)),
            Err(fault) => Err(fault),
        },
        Err(fault) => match second {
            Ok(_b) => Err(fault),
            Err(other) => Err(earlier(fault, other)),
        },
    }
}

/// The list with one more part, or the first of the faults.
fn pushed<T: Drop>(
    found: Result<List<T>, Fault>,
    part: Result<T, Fault>,
) -> Result<Result<List<T>, Fault>, Memory>
    ensures { IfOk result (λ more. more
        ≡ formed (λ both. both.0 ++ both.1 ∷ []) (paired found part)) }
{
    match paired(found, part) {
        Ok((mut list, part)) => {
            list.push(part)?;
            Ok(Ok(list))
        }
        Err(fault) => Ok(Err(fault)),
    }
}

/// The list of all parts, or the first of their faults.
#[tactic(auto, using(crate::proofs::OutcomeLaws::pushes))]
pub(crate) fn all_of<T: Drop>(
    alloc: Global,
    parts: Vec<Result<T, Fault>>,
) -> Result<Result<List<T>, Fault>, Memory>
    ensures { IfOk result (λ list. list ≡ all_of parts.items) }
{
    let mut found = Ok(List::new(alloc));
    for part in parts {
        found = pushed(found, part)?;
    }
    Ok(found)
}

/// The part, unless there is a fault besides.
pub(crate) fn also<T: Drop>(part: Result<T, Fault>, fault: Option<Fault>) -> Result<T, Fault>
    ensures { result ≡ also part fault }
{
    match fault {
        None => part,
        Some(other) => match part {
            Ok(_part) => Err(other),
            Err(fault) => Err(earlier(fault, other)),
        },
    }
}

/// The earlier of two faults, where there is one.
pub(crate) fn earlier_if(first: Option<Fault>, second: Option<Fault>) -> Option<Fault>
    ensures { result ≡ earlier_if first second }
{
    match first {
        None => second,
        Some(fault) => match second {
            None => Some(fault),
            Some(other) => Some(earlier(fault, other)),
        },
    }
}
