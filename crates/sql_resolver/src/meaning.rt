//! What a name means that may stand for several things.

ghost use Rattle.std.specs.Prelude.{◌≡◌};
ghost use Rattle.sql_resolver.specs.Meant.{one_more};

/// What a name means that stands for something: the one thing that it stands for, or none of the
/// several.
#[derive(Clone, Copy, Debug)]
pub enum Meaning<T> {
    One(T),
    Several,
}

/// What a name means that stands for this thing too.
pub(crate) fn one_more<T: Copy>(known: Option<Meaning<T>>, thing: T) -> Meaning<T>
    ensures { result ≡ one_more known thing }
{
    match known {
        None => Meaning::One(thing),
        Some(_) => Meaning::Several,
    }
}
