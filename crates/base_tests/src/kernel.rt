//! What zones have in the kernel: each call where it does something, and each refusal in its order.
mod devices;
mod ids;
mod memory;
mod processes;
mod zone;
