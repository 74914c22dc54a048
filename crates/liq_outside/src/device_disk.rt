//! A device as a disk: each of its calls is made again until all is done. As such it tells no
//! content, and any image may be left.
ghost use Rattle.std.specs.Prelude.{◌≡◌, ◌≤◌, ◌+◌, ◌-◌, ◌^◌, None, Some, List, ℕ, is_some, length, min, take, drop, IfOk, IfSome, OnOk};
ghost use Rattle.liq_outside.specs.Adapters.{AnyImage, CountsFailure, CountsSuccess};
ghost use Rattle.liq_outside.specs.Devices.{IsCall, TellsFailure, of_device};
ghost use Rattle.liq_outside.specs.Disk.{Follows, Torn, overwritten};
ghost use Rattle.liq_outside.specs.Faults.{HasCause};

use super::device::Device;
use super::disk::Disk;
use super::failed::Failed;
use super::key::Key;
use super::ours::Ours;
use std::marker::Model;

/// A device as a disk: where one call of the device does a part of what is asked, the next goes on
/// behind it.
///
/// Without a device every call fails and is counted. A contract sees the device, how many writes
/// and syncs succeeded, which is its moment, and how many calls failed. Both counts begin at 0 and
/// stay at their last value.
#[derive(Drop)]
pub struct DeviceDisk<V> {
    device: Option<V>,
    moment: u64,
    faults: u64,
}

impl<V> Model for DeviceDisk<V> {
    ghost use Rattle.liq_outside.specs.Devices.{OverDevice};

    ghost Value = { OverDevice V };

    ghost view = { λ d. record { device = d.device; moment = d.moment; faults = d.faults } };
}

impl<V: Device> DeviceDisk<V> {
    /// The disk over this device, or over none. So a device of one's own becomes a disk, which no
    /// other crate can write.
    pub fn over(device: Option<V>) -> Self
        ensures device { result.device ≡ device }
        ensures moment { result.moment ≡ 0 }
        ensures faults { result.faults ≡ 0 }
    {
        DeviceDisk {
            device,
            moment: 0,
            faults: 0,
        }
    }

    /// Whether there is a device.
    pub fn is_there(&self) -> bool
        ensures { result ≡ is_some self.now.device }
    {
        self.device.is_some()
    }
}

impl<V: Device> Ours for DeviceDisk<V> {}

impl<V: Device> Disk for DeviceDisk<V> {
    ghost at = { λ d. record {
      seen = None;
      moment = d.moment;
      left_at = λ _ image. AnyImage image;
      faults = d.faults;
    } };

    ghost seen_may_stay = { λ disk held is. tt };

    fn length(&mut self) -> Result<u64, Failed>
        ensures told { IfOk result (λ n.
            IfSome (of_device V.held self.old) (λ old. n ≡ length old)) }
        ensures same { of_device V.held self.new ≡ of_device V.held self.old }
        ensures moment { self.new.moment ≡ self.old.moment }
        ensures called { IsCall V.failures self.old self.new result }
        ensures cause { HasCause self.old.faults self.new.faults result }
    {
        let answer = match &mut self.device {
            Some(device) => device.length(),
            None => Err(Failed),
        };
        counted(&mut self.faults, answer)
    }

    fn read_at(&mut self, place: u64, buf: &mut [u8]) -> Result<usize, Failed>
        ensures fits { IfOk result (λ n. n ≤ length buf.old) }
        // Up to place 2^64, beyond which there is none.
        ensures told { place + length buf.old ≤ 2 ^ 64
            → IfOk result (λ n. IfSome (of_device V.held self.old) (λ old.
            (n ≡ min (length buf.old) (length old - place))
            × (take n buf.new ≡ take n (drop place old)))) }
        ensures same { of_device V.held self.new ≡ of_device V.held self.old }
        ensures moment { self.new.moment ≡ self.old.moment }
        ensures called { IsCall V.failures self.old self.new result }
        ensures cause { HasCause self.old.faults self.new.faults result }
    {
        let answer = match &mut self.device {
            Some(device) => filled(device, place, buf),
            None => Err(Failed),
        };
        counted(&mut self.faults, answer)
    }

    fn write_at(&mut self, place: u64, bytes: &[u8]) -> Result<(), Failed>
        requires limit { place + length bytes.now ≤ 2 ^ 40 }
        ensures written { OnOk result ((old : List ℕ)
            → of_device V.held self.old ≡ Some old → place ≤ length old
            → of_device V.held self.new ≡ Some (overwritten old place bytes.now)) }
        ensures crash { Follows (Torn place (length bytes.now)) AnyImage AnyImage }
        ensures moment { CountsSuccess result self.old.moment self.new.moment }
        ensures called { IsCall V.failures self.old self.new result }
        ensures cause { HasCause self.old.faults self.new.faults result }
    {
        let answer = match &mut self.device {
            Some(device) => written(device, place, bytes),
            None => Err(Failed),
        };
        let answer = timed(&mut self.moment, answer);
        counted(&mut self.faults, answer)
    }

    fn sync(&mut self) -> Result<(), Failed>
        ensures synced { OnOk result (of_device V.synced self.new ≡ of_device V.held self.old) }
        ensures same { of_device V.held self.new ≡ of_device V.held self.old }
        ensures moment { CountsSuccess result self.old.moment self.new.moment }
        ensures called { IsCall V.failures self.old self.new result }
        ensures cause { HasCause self.old.faults self.new.faults result }
    {
        let answer = match &mut self.device {
            Some(device) => device.sync(),
            None => Err(Failed),
        };
        let answer = timed(&mut self.moment, answer);
        counted(&mut self.faults, answer)
    }

    fn moment(&self, _key: &Key) -> u64 {
        self.moment
    }

    fn faults(&self) -> u64 {
        self.faults
    }
}

// The answer, at which the moment rises where it is a success.
fn timed(moment: &mut u64, answer: Result<(), Failed>) -> Result<(), Failed>
    ensures same { result ≡ answer }
    ensures counted { CountsSuccess answer moment.old moment.new }
{
    match answer {
        Ok(()) => {
            *moment = moment.saturating_add(1);
            Ok(())
        }
        Err(Failed) => Err(Failed),
    }
}

// The answer, which is counted where it is a failure. The count stays at its last value.
fn counted<T>(faults: &mut u64, answer: Result<T, Failed>) -> Result<T, Failed>
    ensures same { result ≡ answer }
    ensures counted { CountsFailure answer faults.old faults.new }
    ensures count { faults.old ≤ faults.new }
{
    match answer {
        Ok(value) => Ok(value),
        Err(Failed) => {
            *faults = faults.saturating_add(1);
            Err(Failed)
        }
    }
}

// One read may give less than there is, so it goes on until the buffer is full or the device ends.
fn filled<V: Device>(device: &mut V, at: u64, buf: &mut [u8]) -> Result<usize, Failed>
    ensures fits { IfOk result (λ n. n ≤ length buf.old) }
    ensures told { at + length buf.old ≤ 2 ^ 64
        → IfOk result (λ n. IfSome (V.held device.old) (λ old.
        (n ≡ min (length buf.old) (length old - at))
        × (take n buf.new ≡ take n (drop at old)))) }
    ensures same { V.held device.new ≡ V.held device.old }
    ensures kept { V.synced device.new ≡ V.synced device.old }
    ensures counted { TellsFailure result (V.failures device.old) (V.failures device.new) }
{
    let mut count = 0;
    while count < buf.len() {
        let more = device.read_some(at.saturating_add(count as u64), &mut buf[count..])?;
        if more == 0 {
            return Ok(count);
        }
        count += more;
    }
    Ok(count)
}

// One write may take less than it is given, so it goes on behind what was taken.
fn written<V: Device>(device: &mut V, at: u64, bytes: &[u8]) -> Result<(), Failed>
    requires { at + length bytes.now ≤ 2 ^ 40 }
    ensures written { OnOk result ((old : List ℕ) → V.held device.old ≡ Some old → at ≤ length old
        → V.held device.new ≡ Some (overwritten old at bytes.now)) }
    ensures telling { is_some (V.held device.new) ≡ is_some (V.held device.old) }
    ensures kept { V.synced device.new ≡ V.synced device.old }
    ensures counted { TellsFailure result (V.failures device.old) (V.failures device.new) }
{
    let mut count = 0;
    while count < bytes.len() {
        count += device.write_some(at + count as u64, &bytes[count..])?;
    }
    Ok(())
}
