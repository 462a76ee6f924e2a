//! What single parts of the machine do, and the parts that those are made of.

mod buffers;
mod chunks;
mod counts;
mod devices;
mod encodings;
mod files;
mod flights;
mod images;
mod instructions;
mod memories;
mod moments;
mod requests;
mod schedules;
mod sequences;
mod signatures;
mod small;
mod systems;
