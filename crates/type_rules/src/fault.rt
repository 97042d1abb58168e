/// What a program is at fault with, by the rows of the table of faults.
#[derive(Clone, Copy, Debug, PartialEq, Eq)]
pub enum KindOfFault {
    /// A declared type contains itself outside `Box`.
    EndlessType,
    /// A borrow stands in a declared type, `Box`, type argument or reference.
    NestedBorrow,
    /// A reference has an undeclared lifetime, or an elided one that no parameter gives.
    NoRegion,
    /// A type isn't the expected one.
    Mismatch,
    /// A type argument isn't found, or a `let` has neither type nor value.
    NoType,
    /// A wrong number of parts.
    Arity,
    /// A field isn't there, is missing or stands twice.
    Field,
    /// An assignment or a borrow needs a place.
    NotPlace,
    /// A place that isn't mutable is written or borrowed by `&mut`.
    NotMutable,
    /// A value that isn't Copy is taken through a reference.
    MoveOut,
    /// A value meets no arm.
    Uncovered,
    /// A literal is outside its type.
    LiteralRange,
    /// A type that the operator doesn't take.
    NotInteger,
    /// `break` or `continue` outside a loop, or a value for `break` in `while`.
    Outside,
}
