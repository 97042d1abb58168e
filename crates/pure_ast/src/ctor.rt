use aen_base::TypeId;

/// A constructor: a variant of a declared type by its place from 0, or one of the two ways out of a
/// loop. `Brk` and `Ret` have one part each.
#[derive(Clone, Copy, Debug, PartialEq, Eq)]
pub enum CtorId {
    Of(TypeId, u32),
    Brk,
    Ret,
}
