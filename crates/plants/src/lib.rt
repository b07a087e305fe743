// The plant table's rows.
#![tactic(auto)]

// A plant record: monthly guarantee Q in kWh, loss and availability factors in millionths. C lends a list of these.
#[repr(C)]
#[derive(Clone, Copy, Default)]
pub struct Plant {
    pub submarket: u64,
    pub number: u64,
    pub guarantee: u64,
    pub loss: u64,
    pub availability: u64,
}
