//! The parameters of the link, as C sees them. The definition is in `specs/Parameters.antt`.

ghost use Rattle.std.specs.Prelude.{◌≡◌};
ghost use Rattle.nd_c_types.specs.Parameters.{parameters_row};

use nd_params::Params;

/// The parameters of the link: `nd_parameters_row` of the header.
#[repr(C)]
#[derive(Clone, Copy, Drop)]
pub struct ParametersRow {
    /// In milliseconds, as last drawn.
    pub reachable_time: u64,
    /// In milliseconds.
    pub base_reachable_time: u32,
    /// In milliseconds.
    pub retrans_timer: u32,
    /// In bytes.
    pub mtu: u32,
    pub hop_limit: u8,
    pub managed: u8,
    pub other: u8,
    pub reserved: u8,
}

impl ParametersRow {
    /// Returns the row of the parameters.
    pub fn of(params: &Params) -> ParametersRow
        ensures { result ≡ parameters_row params.now }
    {
        ParametersRow {
            reachable_time: params.reachable_time(),
            base_reachable_time: params.base_reachable_time(),
            retrans_timer: params.retrans_timer(),
            mtu: params.mtu(),
            hop_limit: params.hop_limit(),
            managed: u8::from(params.managed()),
            other: u8::from(params.other()),
            reserved: 0,
        }
    }
}
