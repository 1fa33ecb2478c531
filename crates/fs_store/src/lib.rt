//! The documents of a Cloud Firestore database at each time that is kept, as releases of commits bring them.
#![tactic(auto)]

mod absorb;
mod fits;
mod listened;
mod log;
mod logs;
mod noted;
mod release;
mod same;
mod store;
mod told;

pub use fs_versions::Version;
pub use release::Release;
pub use store::Store;
