ghost use Rattle.std.specs.Prelude.{◌≡◌, ◌<◌, ◌^◌, ◌+◌, Some, not, is_none, is_some, true, ◌==◌, ◌&&◌, IfSome};
ghost use Rattle.nd_table.specs.Moment.{IsMoment};
ghost use Rattle.nd_advertiser.specs.Advertising.{answer_date, first_date, interval_after, next_date};

use crate::config::Config;
use nd_table::lesser;
use std::marker::Model;

/// MIN_DELAY_BETWEEN_RAS, in milliseconds (RFC 4861, section 10).
const MIN_DELAY_BETWEEN_RAS: u64 = 3_000;

/// MAX_INITIAL_RTR_ADVERTISEMENTS (RFC 4861, section 10).
const MAX_INITIAL_RTR_ADVERTISEMENTS: u8 = 3;

/// MAX_INITIAL_RTR_ADVERT_INTERVAL, in milliseconds (RFC 4861, section 10).
const MAX_INITIAL_RTR_ADVERT_INTERVAL: u32 = 16_000;

/// The state of an advertising interface (RFC 4861, section 6.2). Moments are in milliseconds.
#[derive(Drop)]
pub(crate) struct Advertising {
    /// The moment at which it became one.
    pub(crate) began: u64,
    pub(crate) config: Config,
    /// The number of advertisements sent since, counted up to the first three.
    pub(crate) sent: u8,
    /// The moment for which the next one is planned, if one was sent.
    pub(crate) planned: Option<u64>,
    /// The moment at which a solicitation is answered, if one was received since the last advertisement.
    pub(crate) answer: Option<u64>,
}

impl Model for Advertising {
    ghost use Rattle.std.specs.Prelude.{Some, ◌≤◌, ◌<◌, ◌^◌};
    ghost use Rattle.nd_advertiser.specs.Advertising.{max_initial_rtr_advertisements};
    ghost use Rattle.nd_advertiser.specs.Table as table;

    ghost Value = { table.Advertising };

    ghost view = { λ a. record { began = Some a.began; settings = Some a.config; sent = a.sent; planned = a.planned; answer = a.answer } };

    ghost invariant = { λ a. (a.sent ≤ max_initial_rtr_advertisements) };
}

impl Advertising {
    ghost use Rattle.nd_advertiser.specs.Calls.{advertised, begun, planned_for};

    /// Returns an interface that becomes an advertising interface at `now` (RFC 4861, section 6.2.2).
    pub(crate) fn begin(now: u64, config: Config) -> Self
        ensures { Some result ≡ begun now config None }
    {
        Advertising {
            began: now,
            config,
            sent: 0,
            planned: None,
            answer: None,
        }
    }

    /// Changes its settings. What is planned stays (our choice).
    pub(crate) fn configure(&mut self, now: u64, config: Config)
        ensures { Some self.new ≡ begun now config (Some self.old) }
    {
        self.config = config;
    }

    /// Notes that an advertisement is sent, with the time that was drawn until the next one (RFC 4861, section 6.2.4).
    pub(crate) fn send(&mut self, now: u64, interval: u32)
        requires { IsMoment now }
        ensures { Some self.new ≡ advertised now interval (Some self.old) }
    {
        self.planned = Some(now + u64::from(interval_after(self.sent, interval)));
        self.answer = None;
        self.sent = (self.sent + 1).min(MAX_INITIAL_RTR_ADVERTISEMENTS);
    }

    /// Plans the answer to a solicitation, if none is planned yet (RFC 4861, section 6.2.6).
    pub(crate) fn plan(&mut self, last: Option<u64>, now: u64, delay: u32)
        requires moment { IsMoment now }
        requires last { IfSome last (λ at. at < 2 ^ 62) }
        ensures { Some self.new ≡ planned_for last now delay (Some self.old) }
    {
        if self.answer.is_none() {
            self.answer = Some(answer_date(last, now, delay));
        }
    }

    /// Returns true if a solicitation must be planned for: an advertisement was sent, and no answer is planned since.
    pub(crate) fn wants_draw(&self) -> bool
        ensures { result ≡ (not (self.now.sent == 0) && is_none self.now.answer) }
    {
        self.sent != 0 && self.answer.is_none()
    }

    /// Returns the moment of the next advertisement.
    pub(crate) fn next(&self, assigned: Option<u64>, last: Option<u64>) -> Option<u64>
        requires last { IfSome last (λ at. at < 2 ^ 62) }
        ensures date { result ≡ next_date (first_date self.now.began assigned last) self.now.planned self.now.answer }
        ensures settings { is_some self.now.settings ≡ true }
    {
        match self.planned {
            Some(planned) => lesser(Some(planned), self.answer),
            None => first_date(self.began, assigned, last),
        }
    }
}

/// Returns the time until the next advertisement, which is limited for the first three (RFC 4861, section 6.2.4).
fn interval_after(sent: u8, interval: u32) -> u32
    ensures { result ≡ interval_after sent interval }
{
    if sent < MAX_INITIAL_RTR_ADVERTISEMENTS {
        interval.min(MAX_INITIAL_RTR_ADVERT_INTERVAL)
    } else {
        interval
    }
}

/// Returns the moment at which a solicitation is answered: after its delay, which begins MIN_DELAY_BETWEEN_RAS after the last advertisement at the
/// earliest (RFC 4861, section 6.2.6).
fn answer_date(last: Option<u64>, now: u64, delay: u32) -> u64
    requires moment { IsMoment now }
    requires last { IfSome last (λ at. at < 2 ^ 62) }
    ensures { result ≡ answer_date last now delay }
{
    match last {
        Some(last) if now < last + MIN_DELAY_BETWEEN_RAS => {
            last + MIN_DELAY_BETWEEN_RAS + u64::from(delay)
        }
        _ => now + u64::from(delay),
    }
}

/// Returns the moment of the first advertisement: once the address is assigned, and MIN_DELAY_BETWEEN_RAS after the last one (RFC 4861, section
/// 6.2.4).
fn first_date(began: u64, assigned: Option<u64>, last: Option<u64>) -> Option<u64>
    requires last { IfSome last (λ at. at < 2 ^ 62) }
    ensures { result ≡ first_date (Some began) assigned last }
{
    let from = began.max(assigned?);
    match last {
        Some(last) => Some(from.max(last + MIN_DELAY_BETWEEN_RAS)),
        None => Some(from),
    }
}
