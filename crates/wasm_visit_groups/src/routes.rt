//! The routes of a visitor, as one type. Written by tools/lists.py from tools/operators.tsv.
use crate::route::{ByAny, Once, Own, Through};
use std::marker::PhantomData;

/// A route for each group of visits.
pub trait Routes {
    /// For the operators with a one-byte opcode, except the numeric ones and the branch table.
    type OneByte;

    /// For the numeric operators with a one-byte opcode, 0x45 to 0xc4.
    type Numeric;

    /// For the operators with the prefix byte 0xfb.
    type Gc;

    /// For the operators with the prefix byte 0xfc.
    type Misc;

    /// For the operators with the prefix byte 0xfe.
    type Atomic;

    /// For the SIMD operators with a subopcode below 0x80.
    type SimdLow;

    /// For the SIMD operators with a subopcode of at least 0x80.
    type SimdHigh;
}

impl Routes for ByAny {
    type OneByte = ByAny;

    type Numeric = ByAny;

    type Gc = ByAny;

    type Misc = ByAny;

    type Atomic = ByAny;

    type SimdLow = ByAny;

    type SimdHigh = ByAny;
}

impl<R: Routes> Routes for Through<R> {
    type OneByte = Through<R::OneByte>;

    type Numeric = Through<R::Numeric>;

    type Gc = Through<R::Gc>;

    type Misc = Through<R::Misc>;

    type Atomic = Through<R::Atomic>;

    type SimdLow = Through<R::SimdLow>;

    type SimdHigh = Through<R::SimdHigh>;
}

/// A route for each group. `OwnGc<OwnMisc<ByAny>>` is one such type: if the names were types of their
/// own, the prover would compare them, one in another, at each visit.
pub struct ByRoutes<OneByte, Numeric, Gc, Misc, Atomic, SimdLow, SimdHigh> {
    routes: PhantomData<(OneByte, Numeric, Gc, Misc, Atomic, SimdLow, SimdHigh)>,
}

impl<OneByte, Numeric, Gc, Misc, Atomic, SimdLow, SimdHigh> Routes
    for ByRoutes<OneByte, Numeric, Gc, Misc, Atomic, SimdLow, SimdHigh> {
    type OneByte = OneByte;

    type Numeric = Numeric;

    type Gc = Gc;

    type Misc = Misc;

    type Atomic = Atomic;

    type SimdLow = SimdLow;

    type SimdHigh = SimdHigh;
}

/// The visits of `VisitOneByte`, and for other groups the routes `R`.
pub type OwnOneByte<R> = ByRoutes<
    Own,
    <R as Routes>::Numeric,
    <R as Routes>::Gc,
    <R as Routes>::Misc,
    <R as Routes>::Atomic,
    <R as Routes>::SimdLow,
    <R as Routes>::SimdHigh,
>;

/// The visits of `VisitNumeric`, and for other groups the routes `R`.
pub type OwnNumeric<R> = ByRoutes<
    <R as Routes>::OneByte,
    Own,
    <R as Routes>::Gc,
    <R as Routes>::Misc,
    <R as Routes>::Atomic,
    <R as Routes>::SimdLow,
    <R as Routes>::SimdHigh,
>;

/// The visits of `VisitGc`, and for other groups the routes `R`.
pub type OwnGc<R> = ByRoutes<
    <R as Routes>::OneByte,
    <R as Routes>::Numeric,
    Own,
    <R as Routes>::Misc,
    <R as Routes>::Atomic,
    <R as Routes>::SimdLow,
    <R as Routes>::SimdHigh,
>;

/// The visits of `VisitMisc`, and for other groups the routes `R`.
pub type OwnMisc<R> = ByRoutes<
    <R as Routes>::OneByte,
    <R as Routes>::Numeric,
    <R as Routes>::Gc,
    Own,
    <R as Routes>::Atomic,
    <R as Routes>::SimdLow,
    <R as Routes>::SimdHigh,
>;

/// The visits of `VisitAtomic`, and for other groups the routes `R`.
pub type OwnAtomic<R> = ByRoutes<
    <R as Routes>::OneByte,
    <R as Routes>::Numeric,
    <R as Routes>::Gc,
    <R as Routes>::Misc,
    Own,
    <R as Routes>::SimdLow,
    <R as Routes>::SimdHigh,
>;

/// The visits of `VisitSimdLow`, and for other groups the routes `R`.
pub type OwnSimdLow<R> = ByRoutes<
    <R as Routes>::OneByte,
    <R as Routes>::Numeric,
    <R as Routes>::Gc,
    <R as Routes>::Misc,
    <R as Routes>::Atomic,
    Own,
    <R as Routes>::SimdHigh,
>;

/// The visits of `VisitSimdHigh`, and for other groups the routes `R`.
pub type OwnSimdHigh<R> = ByRoutes<
    <R as Routes>::OneByte,
    <R as Routes>::Numeric,
    <R as Routes>::Gc,
    <R as Routes>::Misc,
    <R as Routes>::Atomic,
    <R as Routes>::SimdLow,
    Own,
>;

/// The calls of `CallOneByte`, and for other groups the routes `R`.
pub type OnceOneByte<R> = ByRoutes<
    Once,
    <R as Routes>::Numeric,
    <R as Routes>::Gc,
    <R as Routes>::Misc,
    <R as Routes>::Atomic,
    <R as Routes>::SimdLow,
    <R as Routes>::SimdHigh,
>;

/// The calls of `CallNumeric`, and for other groups the routes `R`.
pub type OnceNumeric<R> = ByRoutes<
    <R as Routes>::OneByte,
    Once,
    <R as Routes>::Gc,
    <R as Routes>::Misc,
    <R as Routes>::Atomic,
    <R as Routes>::SimdLow,
    <R as Routes>::SimdHigh,
>;

/// The calls of `CallGc`, and for other groups the routes `R`.
pub type OnceGc<R> = ByRoutes<
    <R as Routes>::OneByte,
    <R as Routes>::Numeric,
    Once,
    <R as Routes>::Misc,
    <R as Routes>::Atomic,
    <R as Routes>::SimdLow,
    <R as Routes>::SimdHigh,
>;

/// The calls of `CallMisc`, and for other groups the routes `R`.
pub type OnceMisc<R> = ByRoutes<
    <R as Routes>::OneByte,
    <R as Routes>::Numeric,
    <R as Routes>::Gc,
    Once,
    <R as Routes>::Atomic,
    <R as Routes>::SimdLow,
    <R as Routes>::SimdHigh,
>;

/// The calls of `CallAtomic`, and for other groups the routes `R`.
pub type OnceAtomic<R> = ByRoutes<
    <R as Routes>::OneByte,
    <R as Routes>::Numeric,
    <R as Routes>::Gc,
    <R as Routes>::Misc,
    Once,
    <R as Routes>::SimdLow,
    <R as Routes>::SimdHigh,
>;

/// The calls of `CallSimdLow`, and for other groups the routes `R`.
pub type OnceSimdLow<R> = ByRoutes<
    <R as Routes>::OneByte,
    <R as Routes>::Numeric,
    <R as Routes>::Gc,
    <R as Routes>::Misc,
    <R as Routes>::Atomic,
    Once,
    <R as Routes>::SimdHigh,
>;

/// The calls of `CallSimdHigh`, and for other groups the routes `R`.
pub type OnceSimdHigh<R> = ByRoutes<
    <R as Routes>::OneByte,
    <R as Routes>::Numeric,
    <R as Routes>::Gc,
    <R as Routes>::Misc,
    <R as Routes>::Atomic,
    <R as Routes>::SimdLow,
    Once,
>;
