//! The kinds of replies: each is the number of its command's verb.

pub(crate) const PRICE: u8 = 1;

pub(crate) const ADVANCE: u8 = 2;

pub(crate) const FUND: u8 = 3;

pub(crate) const TAKE: u8 = 4;

pub(crate) const SEND: u8 = 5;

pub(crate) const OPEN: u8 = 6;

pub(crate) const ADJUST: u8 = 7;

pub(crate) const CLOSE: u8 = 8;

pub(crate) const PROVIDE: u8 = 9;

pub(crate) const WITHDRAW: u8 = 10;

pub(crate) const GAIN_TO_TROVE: u8 = 11;

pub(crate) const LIQUIDATE: u8 = 12;

pub(crate) const REDEEM: u8 = 14;

pub(crate) const CLAIM: u8 = 15;

pub(crate) const ROTATE: u8 = 16;
