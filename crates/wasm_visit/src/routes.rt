//! What each route calls, from an operator and from its bytes. A visitor's routes make it a visitor
//! of each group.
mod atomic;
mod gc;
mod misc;
mod numeric;
mod one_byte;
mod simd_high;
mod simd_low;

pub use crate::routes::atomic::{CallAtomic, GroupAtomic, RouteAtomic};
pub use crate::routes::gc::{CallGc, GroupGc, RouteGc};
pub use crate::routes::misc::{CallMisc, GroupMisc, RouteMisc};
pub use crate::routes::numeric::{CallNumeric, GroupNumeric, RouteNumeric};
pub use crate::routes::one_byte::{CallOneByte, GroupOneByte, RouteOneByte};
pub use crate::routes::simd_high::{CallSimdHigh, GroupSimdHigh, RouteSimdHigh};
pub use crate::routes::simd_low::{CallSimdLow, GroupSimdLow, RouteSimdLow};
