//! The failure of a device.

use thiserror::Error;

/// A device failed. The device itself counts how often, and its contract says when.
#[derive(Clone, Copy, Debug, PartialEq, Eq, Error)]
#[error("the device failed")]
pub struct Failure;
