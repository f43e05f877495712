//! What of a write lands.

ghost use Rattle.std.specs.Prelude.{◌≡◌, length};
ghost use Rattle.xrf_devices.specs.Writing.{HasTorn};
ghost use Rattle.xrf_trace.specs.Landing.{landed, lands};

use xrf_setup::{Landing, TornBytes};
use xrf_trace::Land;

// as many bytes as the write has
fn torn_bytes<const N: usize>(torn: &TornBytes) -> [u8; N]
    requires { length torn.now ≡ N }
    ensures { result ≡ torn.now }
{
    let mut bytes = [0; N];
    bytes.copy_from_slice(torn.bytes());
    bytes
}

/// The bytes that land of a write with these bytes of its own.
pub(crate) fn landed<const N: usize>(land: &Land, own: &[u8; N]) -> Option<[u8; N]>
    requires { HasTorn N land.now }
    ensures { result ≡ landed land.now own.now }
{
    match land {
        Land::Full => Some(*own),
        Land::Lost => None,
        Land::Stop(Landing::Nothing) => None,
        Land::Stop(Landing::All) => Some(*own),
        Land::Stop(Landing::Torn(torn)) => Some(torn_bytes(torn)),
        Land::Fail(Landing::Nothing) => None,
        Land::Fail(Landing::All) => Some(*own),
        Land::Fail(Landing::Torn(torn)) => Some(torn_bytes(torn)),
    }
}

/// Whether a control record or a signal lands: as a whole, or not at all.
pub(crate) fn lands(land: &Land) -> bool
    ensures { result ≡ lands land.now }
{
    match land {
        Land::Full => true,
        Land::Lost => false,
        Land::Stop(landing) => matches!(landing, Landing::All),
        Land::Fail(landing) => matches!(landing, Landing::All),
    }
}
