/// A value as programs print it.
// A type of this crate, since a trait of the library is not implemented here for the types of others.
#[derive(Clone, Copy)]
pub struct Shown<T>(pub T);
