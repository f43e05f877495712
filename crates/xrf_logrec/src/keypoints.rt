ghost use Rattle.std.specs.Prelude.{◌≡◌, nat_eq, IfSome};
ghost use Rattle.std.specs.Cmp.Lexicographic.{pointwise};
ghost use Rattle.xrf_logrec.specs.declared.keypoints.Keypoint.{Keypoint};
ghost use Rattle.xrf_logrec.specs.Keypoints.{is_keypoint, IsKeypoint, key_spelling, KeyIs, key_fields, key_reading};

use byteorder::{BigEndian, ByteOrder};
use xrf_base::is_zero_from;
use xrf_gated::BodyRule;

/// A keypoint: its number, at least 1, and the number of the log record from which a restart's scan
/// starts, at most 65535.
#[derive(Clone, Copy, PartialEq, Eq)]
pub struct Keypoint {
    pub number: u32,
    pub start: u32,
}

impl Keypoint {
    /// The body of a slot that holds this keypoint.
    pub fn write(&self) -> [u8; 63]
        requires { IsKeypoint self.now }
        ensures { KeyIs result self.now }
    {
        self.spelled()
    }

    /// The keypoint that a body spells, or none where it spells none.
    pub fn read(body: &[u8; 63]) -> Option<Keypoint>
        ensures exact { result ≡ key_reading body.now }
        ensures found { IfSome result (KeyIs body.now) }
        ensures only { (keypoint : Keypoint) → KeyIs body.now keypoint → result ≡ Some keypoint }
    {
        let keypoint = Keypoint {
            number: BigEndian::read_u32(&body[1..]),
            start: BigEndian::read_u32(&body[5..]),
        };
        if keypoint.is_in_range() && keypoint.is_alone_in(body) {
            Some(keypoint)
        } else {
            None
        }
    }

    // whether a body that has this keypoint's fields has its kind before them and nothing behind them
    fn is_alone_in(&self, body: &[u8; 63]) -> bool
        requires { key_fields body.now ≡ self.now }
        ensures { result ≡ pointwise nat_eq (key_spelling self.now) body.now }
    {
        body[0] == 4 && is_zero_from(body, 9)
    }

    fn spelled(&self) -> [u8; 63]
        ensures { result ≡ key_spelling self.now }
    {
        let mut body = [0; 63];
        body[0] = 4;
        BigEndian::write_u32(&mut body[1..], self.number);
        BigEndian::write_u32(&mut body[5..], self.start);
        body
    }

    fn is_in_range(&self) -> bool
        ensures { result ≡ is_keypoint self.now }
    {
        self.number >= 1 && self.start <= 65535
    }
}

/// The rule of the keypoints' slots: a body is whole where it spells a keypoint.
#[derive(Drop)]
pub struct KeyBody;

impl BodyRule for KeyBody {
    ghost use Rattle.std.specs.Prelude.{is_some};
    ghost use Rattle.xrf_logrec.specs.Keypoints.{key_reading};

    ghost is_whole = { λ body. is_some (key_reading body) };

    fn whole(body: &[u8; 63]) -> bool {
        Keypoint::read(body).is_some()
    }
}
