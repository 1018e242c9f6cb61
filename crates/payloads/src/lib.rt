// What the raw operands of a message need: their bytes, the dwords from a channel's data to the next one's, the bytes of a block.

#![tactic(auto)]

ghost use Rattle.std.specs.Prelude.{◌≡◌, ◌≤◌};
ghost use Rattle.payloads.specs.Needed.{elements_needed, enabled_below, channel_stride, scatter_needed, registers_needed, block_bytes};

// The bytes of all ExecSize elements, of the type with this code.
#[tactic(auto, unfolding(crate::specs::Needed::elements_needed))]
pub fn elements_needed(exec: u8, code: u8) -> u32
    ensures { result ≡ elements_needed exec code }
{
    u32::from(exec_byte::split(exec).size) * u32::from(element_types::size_of(code))
}

// The number of enabled channels below one.
#[tactic(auto, using(crate::proofs::ChannelLaws::enabled_turn), unfolding(crate::specs::Needed::enabled_below))]
fn enabled_below(channels: u8, channel: u8) -> u8
    requires { channel ≤ 8 }
    ensures { result ≡ enabled_below channels channel }
{
    let mut count = 0;
    for k in 0..channel {
        count += (channels >> k) % 2;
    }
    count
}

// The dwords from a channel's data to the next channel's.
#[tactic(auto, unfolding(crate::specs::Needed::channel_stride))]
pub fn channel_stride(register_size: u8, exec: u8) -> u8
    ensures { result ≡ channel_stride register_size exec }
{
    let dwords = register_size / 4;
    exec_byte::split(exec).size.max(dwords)
}

// The bytes of Src that the enabled channels need, where their data are so many dwords apart.
#[tactic(auto, unfolding(crate::specs::Needed::scatter_needed))]
pub fn scatter_needed(stride: u8, exec: u8, channels: u8) -> u32
    ensures { result ≡ scatter_needed stride exec channels }
{
    let size = u32::from(exec_byte::split(exec).size);
    let dword = u32::from(element_types::size_of(element_types::UD));
    let enabled = u32::from(enabled_below(channels, 4));
    (enabled.saturating_sub(1) * u32::from(stride) + size) * dword
}

// The bytes of so many registers of this size.
#[tactic(auto, unfolding(crate::specs::Needed::registers_needed))]
pub fn registers_needed(register_size: u8, count: u8) -> u32
    ensures { result ≡ registers_needed register_size count }
{
    u32::from(register_size) * u32::from(count)
}

// The bytes of a block, by the code Num_blocks.
#[tactic(auto, unfolding(crate::specs::Needed::block_bytes))]
pub fn block_bytes(code: u8) -> u8
    ensures { result ≡ block_bytes code }
{
    match code {
        0 => 1,
        1 => 2,
        _ => 4,
    }
}
