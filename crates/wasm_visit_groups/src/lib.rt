//! The trait of all visitors, the visits of operators in seven groups, and the routes to them.
#![tactic(auto)]

mod atomic;
mod gc;
mod misc;
mod numeric;
mod one_byte;
mod route;
mod routes;
mod simd_high;
mod simd_low;
mod visitor;

pub use atomic::VisitAtomic;
pub use gc::VisitGc;
pub use misc::VisitMisc;
pub use numeric::VisitNumeric;
pub use one_byte::VisitOneByte;
pub use route::{ByAny, Once, Own, Through, ToOwn};
pub use routes::{
    ByRoutes, OnceAtomic, OnceGc, OnceMisc, OnceNumeric, OnceOneByte, OnceSimdHigh, OnceSimdLow,
    OwnAtomic, OwnGc, OwnMisc, OwnNumeric, OwnOneByte, OwnSimdHigh, OwnSimdLow, Routes,
};
pub use simd_high::VisitSimdHigh;
pub use simd_low::VisitSimdLow;
pub use visitor::Visitor;
