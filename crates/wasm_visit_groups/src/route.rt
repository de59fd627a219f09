//! The routes by which the operators of a group get to a visitor.
use std::marker::PhantomData;

/// The route by the visitor's `visit_any`.
pub struct ByAny;

/// The route by the visitor's visits of the group.
pub struct Own;

/// The route by two calls of the visitor, which call its visits of the group.
pub struct Once;

/// A route by the visitor's visits.
pub trait ToOwn {}

impl ToOwn for Own {}

impl ToOwn for Once {}

/// The route of a reference to a visitor, or of a box: the visitor's route `R`.
pub struct Through<R> {
    route: PhantomData<R>,
}
