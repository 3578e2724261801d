//! What holds of the types here. Nothing runs here.

use crate::{Items, Value};

/// A value and the items of a list may move to another thread and be shared by threads.
pub fn values_cross_threads() {
    crosses_threads::<Items>();
    crosses_threads::<Value>();
}

fn crosses_threads<T: Send + Sync>() {}
