// The version of the library, for C to compare with its header.
ghost use Rattle.std.specs.Prelude.{◌≡◌};
ghost use Rattle.ssp.specs.Version.{VERSION, INTERFACE};

// SSP_VERSION of the header that belongs to this archive.
#[unsafe(no_mangle)]
pub extern "C" fn ssp_version() -> u32
    ensures { result ≡ VERSION }
{
    10_300
}

// The interface's number, in its name too: the header names this function, so that only an archive of the same
// interface links.
#[unsafe(no_mangle)]
pub extern "C" fn ssp_interface_4() -> u32
    ensures { result ≡ INTERFACE }
{
    4
}
