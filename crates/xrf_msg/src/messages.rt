ghost use Rattle.std.specs.Prelude.{◌≡◌, ℕ, [], ◌∷◌, ◌++◌, replicate, take, drop, Some, IfSome};
ghost use Rattle.xrf_base.specs.Names.{padded_name};
ghost use Rattle.xrf_msg.specs.declared.messages.Message.{Message};
ghost use Rattle.xrf_msg.specs.Messages.{epoch_of, number_of, HasRanges, HasNames, IsUser, head_of, state_byte, terminal_of, user_of, spelling, MsgIs, is_number, is_tracked, fits_state, has_ranges, epoch_in, number_in, on_in, term_in, user_in, term_fields, user_fields, fields_of, message_reading};

use byteorder::{BigEndian, ByteOrder};
use xrf_base::{Inc, Name8};
use xrf_gated::BodyRule;

/// What an active tells its alternate. The epoch is the alternate's incarnation, and the messages of
/// an epoch are numbered from 0, which is Begin's number.
#[derive(Clone, Copy, PartialEq, Eq)]
pub enum Message {
    /// The catch-up begins: the table is empty.
    Begin {
        epoch: Inc,
    },
    /// A terminal of class 1 or 2 is on or off.
    Term {
        epoch: Inc,
        seq: u32,
        term: Name8,
        class: u8,
        on: bool,
    },
    /// The catch-up ends.
    End {
        epoch: Inc,
        seq: u32,
    },
    /// A terminal of class 1 or 2 is on, with its user, or off.
    User {
        epoch: Inc,
        seq: u32,
        term: Name8,
        class: u8,
        on: bool,
        user: Option<Name8>,
    },
}

impl Message {
    /// The epoch of the message.
    pub fn epoch(&self) -> Inc
        ensures { result ≡ epoch_of self.now }
    {
        match self {
            Message::Begin { epoch } => *epoch,
            Message::Term { epoch, .. } => *epoch,
            Message::End { epoch, .. } => *epoch,
            Message::User { epoch, .. } => *epoch,
        }
    }

    /// The number of the message in its epoch.
    pub fn number(&self) -> u32
        ensures { result ≡ number_of self.now }
    {
        match self {
            Message::Begin { .. } => 0,
            Message::Term { seq, .. } => *seq,
            Message::End { seq, .. } => *seq,
            Message::User { seq, .. } => *seq,
        }
    }

    /// The body of a slot that holds this message.
    pub fn write(&self) -> [u8; 63]
        requires { HasRanges self.now }
        ensures { MsgIs result self.now }
    {
        self.spelled()
    }

    /// The message that a body spells, or none where it spells none.
    pub fn read(body: &[u8; 63]) -> Option<Message>
        ensures exact { result ≡ message_reading body.now }
        ensures found { IfSome result (MsgIs body.now) }
        ensures only { (message : Message) → MsgIs body.now message → result ≡ Some message }
    {
        reading(body)
    }

    fn spelled(&self) -> [u8; 63]
        ensures bytes { result ≡ spelling self.now }
        ensures names { HasNames self.now }
    {
        match self {
            Message::Begin { epoch } => head(1, *epoch, 0),
            Message::Term {
                epoch,
                seq,
                term,
                class,
                on,
            } => with_terminal(2, *epoch, *seq, &term.padded(), *class, *on),
            Message::End { epoch, seq } => head(3, *epoch, *seq),
            Message::User {
                epoch,
                seq,
                term,
                class,
                on,
                user,
            } => with_user(
                4,
                *epoch,
                *seq,
                &term.padded(),
                *class,
                *on,
                &user_field(user),
            ),
        }
    }

    fn is_in_range(&self) -> bool
        ensures { result ≡ has_ranges self.now }
    {
        match self {
            Message::Begin { epoch } => *epoch >= 1,
            Message::Term {
                epoch,
                seq,
                class,
                ..
            } => *epoch >= 1 && *seq >= 1 && is_class(*class),
            Message::End { epoch, seq } => *epoch >= 1 && *seq >= 1,
            Message::User {
                epoch,
                seq,
                class,
                on,
                user,
                ..
            } => *epoch >= 1 && *seq >= 1 && is_class(*class) && state_allows(*on, user),
        }
    }
}

fn is_class(class: u8) -> bool
    ensures { result ≡ is_tracked class }
{
    class >= 1 && class <= 2
}

// only a terminal that is on has a user
fn state_allows(on: bool, user: &Option<Name8>) -> bool
    ensures { result ≡ fits_state on user.now }
{
    on || user.is_none()
}

// a body with the fields that each kind has, and zero else
fn head(kind: u8, epoch: Inc, seq: u32) -> [u8; 63]
    ensures { result ≡ head_of kind epoch seq ++ replicate 54 0 }
{
    let mut body = [0; 63];
    body[0] = kind;
    BigEndian::write_u32(&mut body[1..], epoch);
    BigEndian::write_u32(&mut body[5..], seq);
    body
}

fn state(on: bool) -> u8
    ensures { result ≡ state_byte on }
{
    u8::from(on)
}

// the same with a terminal's name, class and state behind them
fn with_terminal(kind: u8, epoch: Inc, seq: u32, term: &[u8; 8], class: u8, on: bool) -> [u8; 63]
    ensures { result ≡ head_of kind epoch seq ++ (term.now ++ class ∷ state_byte on ∷ []) ++ replicate 44 0 }
{
    let mut body = head(kind, epoch, seq);
    body[17] = class;
    body[18] = state(on);
    body[9..17].copy_from_slice(term);
    body
}

// the same with a user behind them
fn with_user(
    kind: u8,
    epoch: Inc,
    seq: u32,
    term: &[u8; 8],
    class: u8,
    on: bool,
    user: &[u8; 8],
) -> [u8; 63]
    ensures { result ≡ head_of kind epoch seq ++ (term.now ++ class ∷ state_byte on ∷ []) ++ user.now ++ replicate 36 0 }
{
    let mut body = head(kind, epoch, seq);
    body[17] = class;
    body[18] = state(on);
    body[19..27].copy_from_slice(user);
    body[9..17].copy_from_slice(term);
    body
}

fn user_field(user: &Option<Name8>) -> [u8; 8]
    ensures bytes { result ≡ user_of user.now }
    ensures name { IsUser user.now }
{
    match user {
        Some(user) => user.padded(),
        None => [0; 8],
    }
}

// the fields of a body
fn epoch_at(body: &[u8; 63]) -> Inc
    ensures { result ≡ epoch_in body.now }
{
    BigEndian::read_u32(&body[1..])
}

fn number_at(body: &[u8; 63]) -> u32
    ensures { result ≡ number_in body.now }
{
    BigEndian::read_u32(&body[5..])
}

fn term_at(body: &[u8; 63]) -> Option<Name8>
    ensures { result ≡ term_in body.now }
{
    let mut field = [0; 8];
    field.copy_from_slice(&body[9..17]);
    Name8::from_padded(&field)
}

fn padded_user(body: &[u8; 63]) -> Option<Name8>
    ensures { result ≡ padded_name (take 8 (drop 19 body.now)) }
{
    let mut field = [0; 8];
    field.copy_from_slice(&body[19..27]);
    Name8::from_padded(&field)
}

// the user, or that there is none; nothing where the field is neither
fn user_at(body: &[u8; 63]) -> Option<Option<Name8>>
    ensures { result ≡ user_in body.now }
{
    if body[19] == 0 {
        return Some(None);
    }
    let user = padded_user(body)?;
    Some(Some(user))
}

fn term_message(body: &[u8; 63]) -> Option<Message>
    ensures { result ≡ term_fields body.now }
{
    let term = term_at(body)?;
    Some(Message::Term {
        epoch: epoch_at(body),
        seq: number_at(body),
        term,
        class: body[17],
        on: body[18] == 1,
    })
}

fn user_message(body: &[u8; 63]) -> Option<Message>
    ensures { result ≡ user_fields body.now }
{
    let term = term_at(body)?;
    let user = user_at(body)?;
    Some(Message::User {
        epoch: epoch_at(body),
        seq: number_at(body),
        term,
        class: body[17],
        on: body[18] == 1,
        user,
    })
}

// the message of the fields, if the kind is one of a message
fn fields_in(body: &[u8; 63]) -> Option<Message>
    ensures { result ≡ fields_of body.now }
{
    match body[0] {
        1 => Some(Message::Begin {
            epoch: epoch_at(body),
        }),
        2 => term_message(body),
        3 => Some(Message::End {
            epoch: epoch_at(body),
            seq: number_at(body),
        }),
        4 => user_message(body),
        _ => None,
    }
}

// the message of the fields, where it is in its ranges and is spelled so
fn reading(body: &[u8; 63]) -> Option<Message>
    ensures { result ≡ message_reading body.now }
{
    let message = fields_in(body)?;
    if message.is_in_range() && message.spelled() == *body {
        Some(message)
    } else {
        None
    }
}

/// The rule of the message slots: a body is whole where it spells a message.
#[derive(Drop)]
pub struct MsgBody;

impl BodyRule for MsgBody {
    ghost use Rattle.std.specs.Prelude.{is_some};
    ghost use Rattle.xrf_msg.specs.Messages.{message_reading};

    ghost is_whole = { λ body. is_some (message_reading body) };

    fn whole(body: &[u8; 63]) -> bool {
        Message::read(body).is_some()
    }
}
