//! Copies the bytes of a literal that need no escape, many bytes at once. Two blocks that overlap cover the bytes
//! that are left over.
ghost use Rattle.std.specs.Prelude.{◌≡◌, ◌+◌, ◌≤◌, false, length, flat_map};
ghost use Rattle.std.specs.Bool.{OnTrue};
ghost use Rattle.csvw_ntriples.specs.Escape.{needs_escape, PlainBetween};
ghost use Rattle.csvw_ntriples.specs.PlainCopy.{IsCopied, IsPlainCopy};
ghost use Rattle.csvw_ntriples.specs.Written.{escaped};

use crate::copy::copy_at;
use std::simd::prelude::*;

pub(crate) fn needs_escape(b: u8) -> bool
    ensures { result ≡ needs_escape b }
{
    matches!(b, b'"' | b'\\' | b'\n' | b'\r')
}

/// Returns whether none of 4 bytes from the place `at` on is escaped.
#[inline(always)]
fn is_plain_4(bytes: &[u8], at: usize) -> bool
    requires { at + 4 ≤ length bytes.now }
    ensures { OnTrue result (PlainBetween bytes.now at (at + 4)) }
{
    let v = u8x4::from_slice(&bytes[at..]);
    let quoting = v.simd_eq(u8x4::splat(b'"')) | v.simd_eq(u8x4::splat(b'\\'));
    let breaking = v.simd_eq(u8x4::splat(b'\n')) | v.simd_eq(u8x4::splat(b'\r'));
    (quoting | breaking).to_bitmask() == 0
}

/// Returns whether none of 8 bytes from the place `at` on is escaped.
#[inline(always)]
fn is_plain_8(bytes: &[u8], at: usize) -> bool
    requires { at + 8 ≤ length bytes.now }
    ensures { OnTrue result (PlainBetween bytes.now at (at + 8)) }
{
    let v = u8x8::from_slice(&bytes[at..]);
    let quoting = v.simd_eq(u8x8::splat(b'"')) | v.simd_eq(u8x8::splat(b'\\'));
    let breaking = v.simd_eq(u8x8::splat(b'\n')) | v.simd_eq(u8x8::splat(b'\r'));
    (quoting | breaking).to_bitmask() == 0
}

/// Returns whether none of 16 bytes from the place `at` on is escaped.
#[inline(always)]
fn is_plain_16(bytes: &[u8], at: usize) -> bool
    requires { at + 16 ≤ length bytes.now }
    ensures { OnTrue result (PlainBetween bytes.now at (at + 16)) }
{
    let v = u8x16::from_slice(&bytes[at..]);
    let quoting = v.simd_eq(u8x16::splat(b'"')) | v.simd_eq(u8x16::splat(b'\\'));
    let breaking = v.simd_eq(u8x16::splat(b'\n')) | v.simd_eq(u8x16::splat(b'\r'));
    (quoting | breaking).to_bitmask() == 0
}

/// Copies 4 bytes from the place `at` on if none of them is escaped. Returns whether it did.
#[inline(always)]
fn copy_plain_4(room: &mut [u8], bytes: &[u8], at: usize) -> bool
    requires within { at + 4 ≤ length bytes.now }
    requires copied { IsCopied bytes.now room.old at }
    ensures copied { OnTrue result (IsCopied bytes.now room.new (at + 4)) }
    ensures plain { OnTrue result (PlainBetween bytes.now at (at + 4)) }
{
    if !is_plain_4(bytes, at) {
        return false;
    }
    copy_at::<4>(room, bytes, at);
    true
}

/// Copies 8 bytes from the place `at` on if none of them is escaped. Returns whether it did.
#[inline(always)]
fn copy_plain_8(room: &mut [u8], bytes: &[u8], at: usize) -> bool
    requires within { at + 8 ≤ length bytes.now }
    requires copied { IsCopied bytes.now room.old at }
    ensures copied { OnTrue result (IsCopied bytes.now room.new (at + 8)) }
    ensures plain { OnTrue result (PlainBetween bytes.now at (at + 8)) }
{
    if !is_plain_8(bytes, at) {
        return false;
    }
    copy_at::<8>(room, bytes, at);
    true
}

/// Copies 16 bytes from the place `at` on if none of them is escaped. Returns whether it did.
#[inline(always)]
fn copy_plain_16(room: &mut [u8], bytes: &[u8], at: usize) -> bool
    requires within { at + 16 ≤ length bytes.now }
    requires copied { IsCopied bytes.now room.old at }
    ensures copied { OnTrue result (IsCopied bytes.now room.new (at + 16)) }
    ensures plain { OnTrue result (PlainBetween bytes.now at (at + 16)) }
{
    if !is_plain_16(bytes, at) {
        return false;
    }
    copy_at::<16>(room, bytes, at);
    true
}

fn copy_plain_few(room: &mut [u8], bytes: &[u8]) -> bool
    requires { length room.old ≡ length bytes.now }
    ensures { OnTrue result (IsPlainCopy bytes.now room.new) }
{
    for b in bytes {
        if needs_escape(*b) {
            return false;
        }
    }
    room.copy_from_slice(bytes);
    true
}

#[inline(always)]
fn copy_plain_long(room: &mut [u8], bytes: &[u8]) -> bool
    requires long { 16 ≤ length bytes.now }
    requires same_len { length room.old ≡ length bytes.now }
    ensures { OnTrue result (IsPlainCopy bytes.now room.new) }
{
    let mut at = 0;
    while bytes.len() - at > 16 {
        if !copy_plain_16(room, bytes, at) {
            return false;
        }
        at += 16;
    }
    copy_plain_16(room, bytes, bytes.len() - 16)
}

#[inline(always)]
fn copy_plain_short(room: &mut [u8], bytes: &[u8]) -> bool
    requires short { length bytes.now ≤ 16 }
    requires same_len { length room.old ≡ length bytes.now }
    ensures { OnTrue result (IsPlainCopy bytes.now room.new) }
{
    let len = bytes.len();
    if len >= 8 {
        copy_plain_8(room, bytes, 0) && copy_plain_8(room, bytes, len - 8)
    } else if len >= 4 {
        copy_plain_4(room, bytes, 0) && copy_plain_4(room, bytes, len - 4)
    } else {
        copy_plain_few(room, bytes)
    }
}

/// Copies bytes over as many others if it sees that none of them is escaped. Returns whether it did.
#[inline(always)]
pub(crate) fn copy_plain(room: &mut [u8], bytes: &[u8]) -> bool
    requires { length room.old ≡ length bytes.now }
    ensures { OnTrue result (room.new ≡ flat_map escaped bytes.now) }
{
    if bytes.len() < 16 {
        copy_plain_short(room, bytes)
    } else {
        copy_plain_long(room, bytes)
    }
}
