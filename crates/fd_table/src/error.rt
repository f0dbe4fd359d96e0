/// Why a descriptor was refused.
#[derive(Clone, Copy, Debug, PartialEq, Eq)]
pub enum FdErr {
    /// Every descriptor is open.
    OutOfDescriptors,
    /// No descriptor of that number is open.
    BadDescriptor,
}
