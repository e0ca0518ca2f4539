// One number of a room changed.
use crate::sets::only;

// Adds the power of two to the number at this place, modulo 65536.
pub fn add_power(room: &mut [u16], place: usize, power: u16) {
    if let Some(number) = room.get_mut(place) {
        *number = number.wrapping_add(only(power));
    }
}
