mod devices;
mod memory_unit;
mod sizes;
mod stored_words;
mod translations;
