//! For the layers above: services that are checked and not made. A program that handles whole messages needs none of
//! it.

pub use crate::service_checking::check_service;
